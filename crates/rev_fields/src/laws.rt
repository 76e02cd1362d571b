//! Laws of fields and numbers, each the contract of a function that does nothing.
ghost use Rattle.rev_fields.specs.Grammar.{DigitListsAreRead, DigitsAreRead, FieldsAreRead, PartsAreCut};
ghost use Rattle.rev_fields.specs.Laws.{LinesAreRead, NumberListsAreRead, NumbersAreRead, OneField};

/// A line of fields is read as the texts that were written.
pub fn lines_are_read()
    ensures { LinesAreRead }
{}

/// A field that writes a text is the only one that writes it.
pub fn one_field()
    ensures { OneField }
{}

/// A number in decimal digits is read as that number.
pub fn numbers_are_read()
    ensures { NumbersAreRead }
{}

/// Numbers with commas between them are read as these numbers, where there are any.
pub fn number_lists_are_read()
    ensures { NumberListsAreRead }
{}

/// Bytes have certain parts exactly where a certain byte stands between each two of these, and in none.
pub fn parts_are_cut()
    ensures { PartsAreCut }
{}

/// A line is read as certain texts exactly where it is fields that write these, with one space between each two.
pub fn fields_are_read()
    ensures { FieldsAreRead }
{}

/// A text is read as a number exactly where it is the digits of that number.
pub fn digits_are_read()
    ensures { DigitsAreRead }
{}

/// A text is read as numbers exactly where it is their digits with commas between them.
pub fn digit_lists_are_read()
    ensures { DigitListsAreRead }
{}
