//! Laws of records, as functions without a body whose contracts the check proves.

ghost use Rattle.std.specs.Prelude.{◌≡◌, ◌↔◌, List, ℕ, Ok, Err, option_map};
ghost use Rattle.gateway_words.specs.Places.{Position};
ghost use Rattle.mp_codec.specs.declared.fault.FormatFault.{FormatFault};
ghost use Rattle.mp_codec.specs.Fault.{IsFirstFault, WithBreaks};
ghost use Rattle.mp_codec.specs.Value.{Value};
ghost use Rattle.mp_codec.specs.Spelling.{Spells};
ghost use Rattle.mp_codec.specs.Span.{IsIn, text_at};
ghost use Rattle.mp_codec.specs.Writing.{IsShortest};
ghost use Rattle.conda_record.specs.declared.spans.Field.{Field};
ghost use Rattle.conda_record.specs.Record.{Fields, RecordAt, RecordFault};
ghost use Rattle.conda_record.specs.Reading.{record_from};
ghost use Rattle.conda_record.specs.Places.{Places, fields_at, span_of, text_of_field};
ghost use Rattle.conda_record.specs.Placing.{places_from};
ghost use Rattle.conda_record.specs.Writing.{record_bytes, IsWritable, AreFields, IsReadAgain};

/// What is written is read as the record that it was written for, whatever follows it; so different
/// records have different bytes.
pub fn a_written_record_is_read()
    ensures read { (f : Fields) → IsWritable f → AreFields f → IsReadAgain f }
    ensures apart { (f g : Fields) → IsWritable f → AreFields f → IsWritable g → AreFields g
        → record_bytes f ≡ record_bytes g → f ≡ g }
    // No spelling of the value that was written has fewer bytes.
    ensures shortest { (f : Fields) → IsWritable f → AreFields f → (v : Value)
        → Spells v (record_bytes f) → IsShortest v (record_bytes f) }
{}

/// At a position a record stands in one way at most, and then nothing is wrong with it; else one fault
/// is the first. `record_from` says which.
pub fn a_record_stands_or_has_a_first_fault()
    ensures record { (here there : Position) (fields : Fields)
        → (record_from here ≡ Ok (fields, there)) ↔ RecordAt here fields there }
    ensures fault { (here : Position) (f : FormatFault)
        → (record_from here ≡ Err f) ↔ IsFirstFault (WithBreaks RecordFault here) f }
{}

/// What stands at the places of a record, in the bytes in which they were read, is the record that is
/// read there.
pub fn a_record_stands_at_its_places()
    ensures read { (bytes : List ℕ) (here there : Position) (p : Places) → IsIn bytes here
        → places_from here ≡ Ok (p, there) → record_from here ≡ Ok (fields_at bytes p, there) }
    ensures refused { (here : Position) (f : FormatFault)
        → places_from here ≡ Err f → record_from here ≡ Err f }
    // The text at the span of a field is that of the field.
    ensures text { (bytes : List ℕ) (p : Places) (field : Field)
        → option_map (text_at bytes) (span_of field p) ≡ text_of_field field (fields_at bytes p) }
{}
