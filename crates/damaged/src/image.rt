use chained::table::Chained;
use history::store::Store;
use layout::laying::lay_out;

// A header and 5 records.
pub const SIZE: usize = 192;

// Two objects, of which one has a version and a token more, and one free record.
pub fn lawful_image() -> [u8; SIZE] {
    let mut bytes = [0; SIZE];
    let _ = lay_out(&mut bytes, 2, 5, &[7, 8]);
    let mut store = Chained::new(&mut bytes);
    let _ = store.put(0, 5, 0, 9);
    let _ = store.extend(0, 5, 300);
    let _ = store.put(0, 70_000, 3, 10);
    bytes
}
