//! Laws of streams, over bytes alone.
ghost use Rattle.std.specs.Prelude.{◌≡◌, ◌≢◌, ℕ, ◌+◌, ◌≤◌, List, ◌++◌};
ghost use Rattle.pb_lines.specs.Stream.{Item, Section, Stop, IsStream, IsFinal, newline_count};

use crate::ChunkFault;

/// Each list of bytes is a stream of some items, up to its end or to its first bad line.
pub fn every_stream()
    ensures { (s : Section) (n p : ℕ) (bytes : List ℕ)
        → (items : List Item) × (stop : Stop) × IsStream s n p bytes items stop }
{}

/// No list of bytes is two streams: its items, and its first bad line with that line's number and
/// fault, are determined.
pub fn one_stream()
    ensures { (s : Section) (n p : ℕ) (bytes : List ℕ) (items others : List Item) (stop halt : Stop)
        → IsStream s n p bytes items stop → IsStream s n p bytes others halt → (items ≡ others) × (stop ≡ halt) }
{}

/// A refusal is final, however the bytes come. Where the first bad line isn't torn and its newline is
/// in the stream, each stream that begins with it has the same items and the same first bad line. So
/// has each where that line, or the stream, is too long.
pub fn refusal_is_final()
    ensures whole_line { (s : Section) (n p : ℕ) (bytes more : List ℕ) (items : List Item)
        (number : ℕ) (fault : ChunkFault)
        → IsStream s n p bytes items (Some (number, fault))
        → fault ≢ ChunkFault.Torn → number ≤ n + newline_count bytes
        → IsStream s n p (bytes ++ more) items (Some (number, fault)) }
    ensures any_line { (s : Section) (n p : ℕ) (bytes more : List ℕ) (items : List Item)
        (number : ℕ) (fault : ChunkFault)
        → IsStream s n p bytes items (Some (number, fault)) → IsFinal fault
        → IsStream s n p (bytes ++ more) items (Some (number, fault)) }
{}
