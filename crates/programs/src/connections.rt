//! What each connection of a port gets, and what a connection is that is served by itself: its pieces, one behind
//! another.
ghost use Rattle.std.specs.Prelude.{◌≡◌, ◌++◌, ℕ, List};
ghost use Rattle.connection_hall.specs.Answers.{Answer};
ghost use Rattle.filing_model.specs.declared.served.Mark.{Mark};
ghost use Rattle.filing_model.specs.Request.{Request};
ghost use Rattle.filing_model.specs.Serving.{Keeping, Serves};
ghost use Rattle.filing_model.specs.Stopping.{Crash, IsStopped};
ghost use Rattle.gateway_rounds.specs.Ports.{Port, Runs};
ghost use Rattle.gateway_server.specs.Connections.{Connection};
ghost use Rattle.intake_process.specs.Turns.{Turn, answers_in, AreTurns};
ghost use Rattle.programs.specs.Cut.{IsInPieces, IsStoppedInPieces};
ghost use Rattle.programs.specs.Replies.{answers_after, EachGets};

use connection_hall::Stream;

/// Each connection of a port gets the replies to what its bytes spell, in order, each after all requests that were
/// completed before it, on whatever connection; and the 503 behind them if it was turned away.
pub fn each_connection_gets_its_replies<S: Stream>()
    ensures { (limit : ℕ) (old_style before : List Request) (told : List Answer) (turns : List Turn) (port : Port S)
        → AreTurns limit old_style before turns → Runs S.Stream (told ++ answers_in turns) port
        → EachGets S.Stream (told ++ answers_after old_style before turns) port }
{}

/// A connection that is served by itself, with whatever messages one behind another, is pieces that are served in turn:
/// its bytes, its marks and what was written on it are theirs, and the same is kept. If it was stopped at one of its
/// messages, that one is a piece that was stopped at its first, and those before it were served.
pub fn a_connection_is_its_pieces()
    ensures served { (requests : Keeping) (connection : Connection)
        → Serves requests connection.read connection.output.marks connection.output.ended connection.output.bytes
        → IsInPieces requests connection }
    ensures stopped { (requests : Keeping) (bytes : List ℕ) (crash : Crash) (marks : List Mark) (out : List ℕ)
        → IsStopped requests bytes crash marks out → IsStoppedInPieces requests bytes crash marks out }
{}
