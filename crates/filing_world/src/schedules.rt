//! One worked schedule, so that what is said of every run is said of something. What may live here: functions that do
//! nothing, each with a law as its contract: that the schedule is a run and what it leaves, and that there is a report
//! for it. The report is any in which nothing is found, and `all` is as many bytes as anything has.

ghost use Rattle.std.specs.Prelude.{◌≡◌, ◌<◌, ℕ, [], ◌∷◌, length, take};
ghost use Rattle.filing_model.specs.Request.{Request};
ghost use Rattle.filing_model.specs.Outbox.{Open, Confirmed, bytes_of};
ghost use Rattle.filing_world.specs.Headline.{start};
ghost use Rattle.filing_world.specs.Schedules.{IsGood, IsAll, MayLeave, each_event, filing_of, registered_bytes, small};

/// Every event may come, and each end may stop where it can. Of a delivery that is cut or stopped before its request
/// nothing is completed, and one that is stopped behind the commit registers the report, without a reply. A stranger's
/// repeat, and the report sent again, are answered with its one number. Cut, or handed over to an outbox that stops
/// before it reads, the reply leaves the entry open; read before a stop it confirms the entry, and once more it changes
/// nothing. Three requests were completed, and one report is registered.
pub fn each_event_may_come()
    ensures open_before { (r : Request) (limit all part cut : ℕ) → IsGood r → 0 < limit → IsAll all r
        → part < length (bytes_of r) → cut < length registered_bytes
        → MayLeave (start (r.filer ∷ []) limit) (take 14 (each_event r all part cut)) 3 (filing_of r ∷ [])
        ([] ∷ [] ∷ [] ∷ registered_bytes ∷ registered_bytes ∷ []) ((1, 1, Open) ∷ []) }
    ensures confirmed { (r : Request) (limit all part cut : ℕ) → IsGood r → 0 < limit → IsAll all r
        → part < length (bytes_of r) → cut < length registered_bytes
        → MayLeave (start (r.filer ∷ []) limit) (each_event r all part cut) 3 (filing_of r ∷ [])
        ([] ∷ [] ∷ [] ∷ registered_bytes ∷ registered_bytes ∷ []) ((1, 1, Confirmed 1) ∷ []) }
{}

/// There are such reports: nothing is found in this one, which takes 84 bytes, and 227 with the head of
/// its request.
pub fn files_such_a_report()
    ensures good { IsGood small }
    ensures bytes { length (bytes_of small) ≡ 227 }
{}
