// Laws of the texts of records.

ghost use Rattle.std.specs.Prelude.{◌≡◌, ◌↔◌, ℕ, List};
ghost use Rattle.boc_record.specs.declared.verdict.RecordFaultKind.{RecordFaultKind};
ghost use Rattle.boc_runs.specs.Records.{Recorded, IsRecord};
ghost use Rattle.boc_record.specs.RecordTexts.{Version, First, Second, record_text, IsTextOf, IsFirstFault};
ghost use Rattle.boc_record.specs.Laws.{IsTextIn, HasWrittenAll};

/// Proves that a text is that of one record, or it has one first fault: never two of these, and never both.
pub fn text_is_of_one_record()
    ensures record { (text : List ℕ) (r s : Recorded) → IsTextOf text r → IsTextOf text s → r ≡ s }
    ensures fault { (text : List ℕ) (n m : ℕ) (k j : RecordFaultKind) → IsFirstFault text n k → IsFirstFault text m j → (n ≡ m) × (k ≡ j) }
    ensures never_both { (text : List ℕ) (r : Recorded) (n : ℕ) (k : RecordFaultKind) → IsTextOf text r → IsFirstFault text n k → ⊥ }
{}

/// Proves that a text is that of a record exactly where it is its text in one of the versions, and a record has one text of each version at
/// most. It has one of the second, and one of the first exactly where each of its rows wrote all of its cowns.
pub fn record_has_one_text()
    ensures either { (text : List ℕ) (r : Recorded) → IsTextOf text r ↔ ((v : Version) × IsTextIn v text r) }
    ensures one { (v : Version) (text other : List ℕ) (r : Recorded) → IsTextIn v text r → IsTextIn v other r → text ≡ other }
    ensures first { (r : Recorded) → IsRecord r → IsTextIn First (record_text First r.cowns r.events) r ↔ HasWrittenAll r.rows }
    ensures second { (r : Recorded) → IsRecord r → IsTextIn Second (record_text Second r.cowns r.events) r }
{}
