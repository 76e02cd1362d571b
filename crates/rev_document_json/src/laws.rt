//! Laws of what is written and read again.
ghost use Rattle.rev_document_json.specs.Reading.{NamesAreRead, TextsAreRead};

/// Each name is had back from its string, whatever its bytes are and whatever follows the string.
pub fn names_are_read()
    ensures { NamesAreRead }
{}

/// Each text is had back from its string, whatever its bytes are and whatever follows the string.
pub fn texts_are_read()
    ensures { TextsAreRead }
{}
