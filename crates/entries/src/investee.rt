// An investee as an entry: its fields, and the source of its emissions.
use crate::method::Method;
use rules::investees::InvesteeFields;
use sources::offset::Offset;
use sources::overseas::OverseasCut;

// What a method reads, less the overseas part, less the offsets.
pub type EntrySource = Offset<OverseasCut<Method>>;

#[derive(Drop)]
pub struct InvesteeEntry {
    pub fields: InvesteeFields,
    pub source: EntrySource,
}

// A month's balance of a branch on an investee, with numbers as a file has them.
#[derive(Clone, Copy, Debug, PartialEq, Eq)]
pub struct PostEntry {
    pub branch: u64,
    pub id: u64,
    pub month: u64,
    pub balance: u64,
}
