//! Functions that carry a theorem: each does nothing, and its contract is the statement.
ghost use Rattle.hex_text.specs.Theorems.{WrittenIsRead};

/// Reading the text of bytes gives the bytes.
pub fn written_is_read()
    ensures { WrittenIsRead }
{}
