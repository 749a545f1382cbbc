//! What of the pieces counts.
ghost use Rattle.std.specs.Prelude.{◌≡◌, ◌≤◌, ◌<◌, ◌↔◌, ◌++◌, ◌∷◌, ℕ, List};
ghost use Rattle.pb_wire.specs.declared.payload.PayloadType.{PayloadType};
ghost use Rattle.series_model.specs.declared.sample.Sample.{Sample};
ghost use Rattle.series_model.specs.declared.sample.Query.{Query};
ghost use Rattle.series_model.specs.Series.{end_of, taken};
ghost use Rattle.series_model.specs.Retrieval.{answer};
ghost use Rattle.pb_messages.specs.declared.info.PayloadInfo.{PayloadInfo};
ghost use Rattle.pb_lines.specs.File.{IsFile};
ghost use Rattle.stream_merge.specs.Reading.{IsReadAs, IsBadFor};

/// A piece that is a file of the type is read as its samples, and as no others; no line of it is bad.
pub fn files_are_read()
    ensures read { (ty : PayloadType) (bytes head : List ℕ) (info : PayloadInfo) (samples others : List Sample)
        → IsFile bytes head info samples → info.ty ≡ ty
        → IsReadAs ty bytes others ↔ (others ≡ samples) }
    ensures good { (ty : PayloadType) (bytes head : List ℕ) (info : PayloadInfo) (samples : List Sample) (at : ℕ)
        → IsFile bytes head info samples → info.ty ≡ ty → IsBadFor ty bytes at → ⊥ }
{}

/// Pieces may stay closed that stand before one which begins earlier than the interval, and
/// later than all that they have.
pub fn pieces_that_may_stay_closed()
    ensures { (closed opened : List Sample) (q : Query) (x : Sample) (xs : List Sample) → opened ≡ x ∷ xs
        → end_of (taken closed) ≤ x.t → x.t < q.from
        → answer (taken (closed ++ opened)) q ≡ answer (taken opened) q }
{}
