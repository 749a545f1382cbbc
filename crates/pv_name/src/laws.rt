//! Laws of names and keys, over lists of bytes alone.
ghost use Rattle.pv_name.specs.Name.{IsRefusedAt};
ghost use Rattle.pv_name.specs.Laws.{NoNameIsRefused, OnePlace, OneKey, KeysAreNames, NoColon};
ghost use Rattle.std.specs.Prelude.{[]};

/// Bytes are a name or are refused, never both, and they are refused at one place; no bytes are
/// refused at 0.
pub fn refusals()
    ensures exclusive { NoNameIsRefused }
    ensures unique { OnePlace }
    ensures no_bytes { IsRefusedAt [] 0 }
{}

/// What a key shows of its name.
pub fn keys()
    ensures one_key { OneKey }
    ensures names { KeysAreNames }
    ensures no_colon { NoColon }
{}
