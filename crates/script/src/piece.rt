// The pieces of a script.
ghost use Rattle.std.specs.Prelude.{◌≡◌, ◌≤◌, [], ◌∷◌, length, MatchOption, ⊤};
ghost use Rattle.std.specs.Iterator.{at_most};
ghost use Rattle.std.specs.List.{prefix_len};
ghost use Rattle.script.specs.Format.{differs};
ghost use Rattle.script.specs.Lines.{lines};

// How many bytes stand before the next separator, or before the end.
pub fn length_before(bytes: &[u8], separator: u8) -> usize
    ensures value { result ≡ prefix_len (differs separator) bytes.now }
    ensures within { result ≤ length bytes.now }
{
    bytes
        .iter()
        .position(|b| *b == separator)
        .unwrap_or(bytes.len())
}

// The lines of a script, without their ends. A `for` over `split_inclusive` gets no proof in a function that is
// generic in a store.
#[derive(Drop)]
pub struct Lines<'a> {
    rest: &'a [u8],
}

impl<'a> Lines<'a> {
    pub fn of(script: &'a [u8]) -> Lines<'a>
        ensures { result.rest.now ≡ script.now }
    {
        Lines { rest: script }
    }
}

impl<'a> Iterator for Lines<'a> {
    type Item = &'a [u8];

    ghost can_next = { λ _. ⊤ };

    ghost next_gives = { λ s r t. MatchOption r (lines s.rest.now ≡ []) (λ line. lines s.rest.now ≡ line.now ∷ lines t.rest.now) };

    ghost remaining = { λ s. at_most (length s.rest.now) };

    fn next(&mut self) -> Option<&'a [u8]> {
        if self.rest.is_empty() {
            return None;
        }
        let (line, rest) = self.rest.split_at(length_before(self.rest, b'\n'));
        self.rest = rest.get(1..).unwrap_or(rest);
        Some(line)
    }
}
