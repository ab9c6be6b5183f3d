//! What the steps of a port are: connections of one arrival each, served in turn. What may live here: functions that do
//! nothing, each with a law as its contract.

ghost use Rattle.std.specs.Prelude.{◌∷◌, [], ◌++◌, ℕ, List, take};
ghost use Rattle.filing_model.specs.Prefix.{IsPrefixOf};
ghost use Rattle.filing_model.specs.Request.{Request};
ghost use Rattle.filing_model.specs.Serving.{IsCutShort, Serves, keeping, kept_by};
ghost use Rattle.filing_model.specs.Steps.{Step, StepsFit, all_completed, text_of_step};
ghost use Rattle.gateway_server.specs.Connections.{ServeInTurn};
ghost use Rattle.gateway_server.specs.Connections.{Connection};
ghost use Rattle.gateway_server.specs.Steps.{AreOfSteps, BeginsArrival, end_behind, keeping_at};

/// A step is a connection on which its arrival came alone, after all requests that were completed before it: the
/// connection gets the text of the step. One whose reply was not written, or only a first part of it, was cut short.
pub fn a_step_is_a_connection()
    ensures served { (limit : ℕ) (old_style before : List Request) (steps : List Step) (step : Step) (bytes : List ℕ)
        (n : ℕ) → StepsFit limit before (steps ++ step ∷ []) → BeginsArrival bytes step.arrival n
        → Serves (keeping_at limit old_style before steps step) (take n bytes) (step.mark ∷ [])
        (end_behind step.arrival) (text_of_step old_style (before ++ all_completed steps) step) }
    ensures cut_short { (limit : ℕ) (old_style before : List Request) (steps : List Step) (step : Step)
        (bytes : List ℕ) (n : ℕ) (out : List ℕ) → StepsFit limit before (steps ++ step ∷ [])
        → BeginsArrival bytes step.arrival n
        → IsPrefixOf out (text_of_step old_style (before ++ all_completed steps) step)
        → IsCutShort (keeping_at limit old_style before steps step) (take n bytes) (step.mark ∷ []) out }
{}

/// Steps are such connections, one for each, that are served in turn.
pub fn steps_are_connections_in_turn()
    ensures { (limit : ℕ) (old_style before : List Request) (steps : List Step) (connections : List Connection)
        → StepsFit limit before steps → AreOfSteps old_style before steps connections
        → ServeInTurn (keeping limit old_style before (kept_by before (all_completed steps))) connections }
{}
