//! What a connection got by the time it is over, and of which bytes an arrival that waits was read.
ghost use Rattle.std.specs.Prelude.{◌≡◌, ◌⊎◌, ℕ, List, Option, Some};
ghost use Rattle.http_messages.specs.Message.{Arrival};
ghost use Rattle.connection_hall.specs.declared.hall.Hall.{Hall};
ghost use Rattle.connection_hall.specs.declared.served.Served.{Served};
ghost use Rattle.connection_hall.specs.declared.why.Why.TheVariants.{Done};
ghost use Rattle.connection_hall.specs.Answers.{Answer, own, AnswersAll, ClosesBehind};
ghost use Rattle.connection_hall.specs.Comings.{Traffic};
ghost use Rattle.connection_hall.specs.Connections.{IsServed, IsEnd};
ghost use Rattle.connection_hall.specs.Running.{IsRunning, arrival_at};
ghost use Rattle.connection_hall.specs.Waiting.{WasRead};

use crate::stream::Stream;

/// A connection that is over though nothing failed got the replies to all that its bytes spell, in order; or to a first
/// part, if the server closed it.
pub fn a_connection_gets_all_replies<S: Stream>()
    ensures { (c : Served S) (answers : List Answer) (came went : List ℕ) → IsServed S.Stream answers c
        → IsEnd S.Stream Done c → S.came c.stream ≡ Some came → S.went c.stream ≡ Some went
        → AnswersAll came went (own c.number answers) ⊎ ClosesBehind came went (own c.number answers) }
{}

/// What waits for an answer in a place begins the bytes that came on its connection and were not answered yet.
pub fn what_waits_was_read<S: Stream>()
    ensures { (answers : List Answer) (hall : Hall S) (traffic : Option (Traffic S)) (place : ℕ) (arrival : Arrival)
        → IsRunning S.Stream answers hall traffic → arrival_at hall place ≡ Some arrival
        → WasRead S.Stream answers hall place arrival }
{}
