// Whether bytes are a lawful table, decided in another way than the store decides it:
// each record's owner is looked for, instead of each chain being walked with marks.

use std::iter::successors;

fn byte(bytes: &[u8], at: usize) -> u8 {
    bytes.get(at).copied().unwrap_or(0)
}

fn number(bytes: &[u8], at: usize, width: usize) -> u64 {
    (0..width).fold(0u64, |n, i| {
        n.wrapping_mul(256)
            .wrapping_add(u64::from(byte(bytes, at.wrapping_add(i))))
    })
}

fn field(bytes: &[u8], record: u64, at: usize, width: usize) -> u64 {
    number(
        bytes,
        (record as usize).wrapping_mul(32).wrapping_add(at),
        width,
    )
}

fn objects(bytes: &[u8]) -> u64 {
    number(bytes, 4, 2)
}

fn records(bytes: &[u8]) -> u64 {
    number(bytes, 6, 2)
}

fn first_free(bytes: &[u8]) -> u64 {
    number(bytes, 8, 2)
}

fn next(bytes: &[u8], record: u64) -> u64 {
    field(bytes, record, 16, 2)
}

fn is_header(bytes: &[u8]) -> bool {
    let n = objects(bytes);
    let m = records(bytes);
    number(bytes, 0, 4) == 0x5054_4831
        && (1..=128).contains(&n)
        && (n..=2047).contains(&m)
        && bytes.len() as u64 == m.wrapping_mul(32).wrapping_add(32)
        && (10..32).all(|at| byte(bytes, at) == 0)
}

// Whether just one of the first free record, the next fields and the object chains' beginnings names record k.
fn is_named_once(bytes: &[u8], k: u64) -> bool {
    let first = usize::from(first_free(bytes) == k);
    let begins = usize::from(k <= objects(bytes));
    let followed = (1..=records(bytes))
        .filter(|j| next(bytes, *j) == k)
        .count();
    followed.saturating_add(first).saturating_add(begins) == 1
}

// Whether the chain that goes on from record k ends in the table.
fn ends(bytes: &[u8], k: u64) -> bool {
    let m = records(bytes);
    successors(Some(k), |at| Some(next(bytes, *at)))
        .take(m as usize)
        .take_while(|at| *at <= m)
        .any(|at| next(bytes, at) == 0)
}

fn is_free(bytes: &[u8], k: u64) -> bool {
    successors(Some(first_free(bytes)), |at| Some(next(bytes, *at)))
        .take(records(bytes) as usize)
        .any(|at| at == k)
}

fn is_blank(bytes: &[u8], k: u64) -> bool {
    [(0, 8), (8, 8), (18, 1), (24, 8)]
        .iter()
        .all(|(at, width)| field(bytes, k, *at, *width) == 0)
}

fn is_item(bytes: &[u8], k: u64) -> bool {
    let start = field(bytes, k, 0, 8);
    let end = field(bytes, k, 8, 8);
    let mark = field(bytes, k, 18, 1);
    let next = next(bytes, k);
    let first = k <= objects(bytes);
    start <= end
        && end < 0x8000_0000_0000_0000
        && mark <= 64
        && (next == 0 || end < field(bytes, next, 0, 8))
        && (!first || (start == 0 && mark == 0))
}

fn is_record(bytes: &[u8], k: u64) -> bool {
    let kept = if is_free(bytes, k) {
        is_blank(bytes, k)
    } else {
        is_item(bytes, k)
    };
    is_named_once(bytes, k) && ends(bytes, k) && field(bytes, k, 19, 5) == 0 && kept
}

pub fn is_lawful_table(bytes: &[u8]) -> bool {
    is_header(bytes)
        && first_free(bytes) <= records(bytes)
        && (1..=records(bytes)).all(|k| is_record(bytes, k))
}
