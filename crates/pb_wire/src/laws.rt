//! Laws of the definitions that the contracts cite. Each is the contract of a function that does
//! nothing.

ghost use Rattle.std.specs.Prelude.{◌≡◌, ℕ, ◌<◌, ◌≤◌, ◌^◌, ℤ, List, ◌++◌, All, length};
ghost use Rattle.pb_wire.specs.declared.error.WireErr.{WireErr};
ghost use Rattle.pb_wire.specs.Message.{WireValue, WireField, IsFieldNumber};
ghost use Rattle.pb_wire.specs.Grammar.{IsVarint, IsField, IsMessage, IsPacked};
ghost use Rattle.pb_wire.specs.Fault.{IsFieldFault};
ghost use Rattle.pb_wire.specs.Reading.{varint_at, field_at};
ghost use Rattle.pb_wire.specs.Cursor.{Cursor, next_of, begun, contents_of, all_of, BeginsWith};
ghost use Rattle.pb_wire.specs.Spelling.{number_text, field_text, FitsValue};
ghost use Rattle.pb_wire.specs.Signed.{zigzag_of, unzigzag_of};

/// What is read as a varint is one, each byte of it, and a varint is read in any of its spellings,
/// whatever follows it. What `put_varint` writes is one, and no spelling of the number is shorter.
pub fn varints()
    ensures found { (end : ℕ) (text rest : List ℕ) (v : ℕ) → varint_at end text ≡ Ok (v, rest)
        → (s : List ℕ) × IsVarint s v × (text ≡ s ++ rest) }
    ensures only { (end : ℕ) (s rest : List ℕ) (v : ℕ) → IsVarint s v
        → varint_at end (s ++ rest) ≡ Ok (v, rest) }
    ensures written { (v : ℕ) → v < 2 ^ 64 → IsVarint (number_text v) v }
    ensures shortest { (s : List ℕ) (v : ℕ) → All (λ b. b < 256) s → IsVarint s v
        → length (number_text v) ≤ length s }
{}

/// What is read as a field is one, each byte of it, and a field is read, known or not and in any
/// of its spellings, whatever follows it. So where reading meets a fault, no field stands.
pub fn fields()
    ensures found { (end : ℕ) (text rest : List ℕ) (f : WireField) → field_at end text ≡ Ok (f, rest)
        → (s : List ℕ) × IsField s f × (text ≡ s ++ rest) }
    ensures only { (end : ℕ) (s rest : List ℕ) (f : WireField) → IsField s f
        → field_at end (s ++ rest) ≡ Ok (f, rest) }
    ensures refused { (end : ℕ) (s rest : List ℕ) (f : WireField) (e : WireErr) → IsField s f
        → field_at end (s ++ rest) ≡ Err e → ⊥ }
{}

/// Where no field stands, reading meets the first fault from the left at its place, and no other.
pub fn faults()
    ensures found { (end : ℕ) (text : List ℕ) (e : WireErr) → field_at end text ≡ Err e
        → IsFieldFault end text e }
    ensures only { (end : ℕ) (text : List ℕ) (e : WireErr) → IsFieldFault end text e
        → field_at end text ≡ Err e }
{}

/// What `put_field` writes is a field, a cursor that stands before it gives the field back, whatever
/// follows it, and no spelling of the field is shorter.
pub fn written_fields()
    ensures field { (n : ℕ) (v : WireValue) → IsFieldNumber n → FitsValue v
        → IsField (field_text n v) (record { number = n; value = v }) }
    ensures back { (end n : ℕ) (v : WireValue) (rest : List ℕ) → IsFieldNumber n → FitsValue v
        → let here : Cursor = record { rest = field_text n v ++ rest; end = end } in
        let behind : Cursor = record { rest = rest; end = end } in
        next_of field_at here ≡ Ok (Some (record { number = n; value = v }, behind)) }
    ensures shortest { (s : List ℕ) (f : WireField) → All (λ b. b < 256) s → IsField s f
        → length (field_text f.number f.value) ≤ length s }
{}

/// The contents of a message are the field at the front and the contents behind it; so are packed
/// numbers.
pub fn contents()
    ensures fields { (c : Cursor)
        → contents_of field_at c ≡ begun (next_of field_at c) (contents_of field_at) }
    ensures numbers { (c : Cursor)
        → contents_of varint_at c ≡ begun (next_of varint_at c) (contents_of varint_at) }
{}

/// All fields are read exactly where the bytes are those fields, one after another. Elsewhere the
/// fault is the one behind the longest front that is such.
pub fn messages()
    ensures found { (c : Cursor) → BeginsWith IsField field_at c.end c.rest (contents_of field_at c) }
    ensures only { (end : ℕ) (text : List ℕ) (fields : List WireField) → IsMessage text fields
        → all_of field_at (record { rest = text; end = end }) ≡ Ok fields }
    ensures longest { (end : ℕ) (front rest s others : List ℕ) (fields more : List WireField) (e : WireErr)
        → IsMessage front fields → next_of field_at (record { rest = rest; end = end }) ≡ Err e
        → IsMessage s more → front ++ rest ≡ s ++ others → length s ≤ length front }
{}

/// The same of packed numbers.
pub fn packed_numbers()
    ensures found { (c : Cursor) → BeginsWith IsVarint varint_at c.end c.rest (contents_of varint_at c) }
    ensures only { (end : ℕ) (text numbers : List ℕ) → IsPacked text numbers
        → all_of varint_at (record { rest = text; end = end }) ≡ Ok numbers }
    ensures longest { (end : ℕ) (front rest s others numbers more : List ℕ) (e : WireErr)
        → IsPacked front numbers → next_of varint_at (record { rest = rest; end = end }) ≡ Err e
        → IsPacked s more → front ++ rest ≡ s ++ others → length s ≤ length front }
{}

/// `zigzag` and `unzigzag` undo one another.
pub fn zigzags()
    ensures back { (z : ℤ) → unzigzag_of (zigzag_of z) ≡ z }
    ensures forth { (n : ℕ) → zigzag_of (unzigzag_of n) ≡ n }
{}
