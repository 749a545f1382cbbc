//! Laws of files, over bytes alone.
ghost use Rattle.std.specs.Prelude.{◌≡◌, ◌≤◌, ◌<◌, ◌^◌, ◌⊎◌, ℕ, List, [], ◌∷◌, ◌++◌, Option, length};
ghost use Rattle.line_escape.specs.Escaping.{escaped};
ghost use Rattle.line_escape.specs.Unescaping.{HasNoNewline};
ghost use Rattle.series_model.specs.declared.sample.Sample.{Sample};
ghost use Rattle.series_model.specs.Series.{RisesFrom, end_of};
ghost use Rattle.pb_messages.specs.declared.info.PayloadInfo.{PayloadInfo};
ghost use Rattle.pb_messages.specs.InfoSpelling.{info_text, FitsInfo};
ghost use Rattle.pb_lines.specs.Header.{IsHeaderLine};
ghost use Rattle.partition_names.specs.declared.part.Part.{Part};
ghost use Rattle.pb_file.specs.declared.check.Verdict.{Verdict};
ghost use Rattle.pb_file.specs.declared.good.Front.{Front as GoodFront};
ghost use Rattle.pb_file.specs.declared.walk.Walked.{Walked};
ghost use Rattle.pb_lines.specs.File.{IsFile, IsBadAt, AreSamples, lines_of};
ghost use Rattle.pb_file.specs.Walk.{Front, Walk, HasWalked, Reads, IsAnswer};
ghost use Rattle.pb_file.specs.Verdict.{Says, IsDecided};
ghost use Rattle.pb_file.specs.GoodFront.{IsGoodFront, HasNoFront};

/// Bytes are one file at most: their header and their samples are determined.
pub fn one_file()
    ensures { (bytes head other : List ℕ) (info about : PayloadInfo) (xs ys : List Sample)
        → IsFile bytes head info xs → IsFile bytes other about ys → (head ≡ other) × (info ≡ about) × (xs ≡ ys) }
{}

/// Bytes have one first bad line at most, and a file has none.
pub fn one_bad_line()
    ensures place { (bytes : List ℕ) (at other : ℕ) → IsBadAt bytes at → IsBadAt bytes other → at ≡ other }
    ensures excluded { (bytes head : List ℕ) (info : PayloadInfo) (xs : List Sample) (at : ℕ)
        → IsFile bytes head info xs → IsBadAt bytes at → ⊥ }
{}

/// All bytes are a file, or have a first bad line.
pub fn every_file()
    ensures { (bytes : List ℕ)
        → ((head : List ℕ) × (info : PayloadInfo) × (xs : List Sample) × IsFile bytes head info xs)
        ⊎ ((at : ℕ) × IsBadAt bytes at) }
{}

/// A header's line with its newline is a file of no samples: each line of a header, and so what `header_line` writes.
pub fn a_file_begins()
    ensures any { (head : List ℕ) (info : PayloadInfo) → HasNoNewline head → IsHeaderLine head info
        → IsFile (head ++ 10 ∷ []) head info [] }
    ensures written { (info : PayloadInfo) → FitsInfo info
        → IsFile (escaped (info_text info) ++ 10 ∷ []) (escaped (info_text info)) info [] }
{}

/// A file grows by samples of its type and year that rise behind its last.
pub fn a_file_grows()
    ensures { (bytes head : List ℕ) (info : PayloadInfo) (xs ys : List Sample) → IsFile bytes head info xs
        → AreSamples info.ty info.year ys → RisesFrom (end_of xs) ys
        → IsFile (bytes ++ lines_of ys) head info (xs ++ ys) }
{}

/// A file that is cut behind any of its lines is the file of the samples up to there.
pub fn a_file_is_cut()
    ensures { (bytes head : List ℕ) (info : PayloadInfo) (xs ys : List Sample) → IsFile bytes head info (xs ++ ys)
        → IsFile (head ++ 10 ∷ lines_of xs) head info xs × (bytes ≡ (head ++ 10 ∷ lines_of xs) ++ lines_of ys) }
{}

/// Bytes have one verdict for a partition at most, but for failed reads and want of memory.
pub fn one_verdict()
    ensures { (part : Part) (bytes : List ℕ) (a b : Verdict) → IsDecided a → IsDecided b → Says part bytes a
        → Says part bytes b → a ≡ b }
{}

/// Bytes have one good front for a partition at most. Where there is one whose header's line isn't too long,
/// the bytes don't have none.
pub fn one_front()
    ensures one { (part : Part) (bytes : List ℕ) (a b : GoodFront) → IsGoodFront part bytes a
        → IsGoodFront part bytes b → a ≡ b }
    ensures excluded { (part : Part) (bytes : List ℕ) (front : GoodFront) → IsGoodFront part bytes front
        → front.head_len < 2 ^ 32 → HasNoFront part bytes → ⊥ }
{}

/// A walk has one answer at most to a call, but for failed reads and want of memory.
pub fn one_step()
    ensures { (front : Option Front) (bytes line other : List ℕ) (a b : Walked) (old v w : Walk)
        → HasWalked old bytes front → old.len ≤ length bytes → IsAnswer a → IsAnswer b
        → Reads front bytes old line a v
        → Reads front bytes old other b w → a ≡ b }
{}
