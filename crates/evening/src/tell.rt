// Answers in plain words.
use ledger::call::Answer;
use ledger::record::standing_word;
use std::fmt;

#[derive(Drop)]
pub struct Told<'a, V>(pub &'a Answer<V>);

impl<V: fmt::Display> fmt::Display for Told<'_, V> {
    fn fmt<W: fmt::Write>(&self, f: &mut fmt::Formatter<W>) -> fmt::Result {
        match self.0 {
            Answer::Began((record, creation)) => write!(f, "begun, ticket {record} {creation}"),
            Answer::Value(value) => write!(f, "{value}"),
            Answer::Wait(record) => write!(f, "wait for record {record}"),
            Answer::Done => write!(f, "done"),
            Answer::Settled((sealed, dropped)) => write!(f, "{sealed} sealed, {dropped} dropped"),
            Answer::Stands(standing, tokens) => {
                let word = standing_word(*standing);
                write!(f, "{word}, {tokens} tokens left")
            }
            Answer::Refused(refusal) => write!(f, "refused with {}", refusal.number()),
        }
    }
}
