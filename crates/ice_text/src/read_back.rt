//! The laws of closing lines, each the contract of a function that does nothing.
ghost use Rattle.ice_text.specs.Closing.{RefusalsReadBack, ValuesReadBack};

/// The closing line of an accepted reply, with numbers below 2^64 and bytes that are bytes, is read as that of an accepted one.
#[tactic(auto, using(crate::proofs::ReadBack::values_read_back))]
pub fn values_read_back()
    ensures { ValuesReadBack }
{}

/// The closing line of a refusal, with a rule's number of one byte, is read as that of the refusal of this number.
#[tactic(auto, using(crate::proofs::ReadBack::refusals_read_back))]
pub fn refusals_read_back()
    ensures { RefusalsReadBack }
{}
