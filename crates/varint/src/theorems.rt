//! Functions that carry a theorem: each does nothing, and its contract is the statement.
ghost use Rattle.varint.specs.Theorems.{WrittenIsRead, OnlyOneForm, EveryNumberWritten};

/// Reading what was written gives the number and its length, whatever stands behind.
pub fn written_is_read()
    ensures { WrittenIsRead }
{}

/// Two different byte strings are never the same number.
pub fn only_one_form()
    ensures { OnlyOneForm }
{}

/// Every number of 32 bits is written, in one to five bytes.
pub fn every_number_written()
    ensures { EveryNumberWritten }
{}
