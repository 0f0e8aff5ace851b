//! What holds of every list of steps. Each body does nothing.

ghost use Rattle.std.specs.Prelude.{◌≡◌, Bool, false, true, List};
ghost use Rattle.pg_query.specs.Leaving.{LetsGo, Nothing};
ghost use Rattle.pg_core.specs.Times.{IsCommand};
ghost use Rattle.pg_steps.specs.Dialogues.{says};
ghost use Rattle.pg_steps.specs.Plans.{is_plan};
ghost use Rattle.pg_steps.specs.Steps.{means};
ghost use Rattle.pg_steps.specs.declared.call.Call.{Call};
ghost use Rattle.pg_steps.specs.declared.step.Step.{Step};

/// A list of steps in which each request is read to its end is a command, and leaves no request open.
pub fn lists_of_steps_are_commands()
    ensures command { (steps : List Step) (c : Call) (r : Bool) → is_plan false steps ≡ true → IsCommand (means steps c r) }
    ensures lets_go { (steps : List Step) (c : Call) (r : Bool) → is_plan false steps ≡ true → LetsGo Nothing (means steps c r) }
{}

/// So is what each call asks and answers.
pub fn calls_are_commands()
    ensures command { (c : Call) → IsCommand (says c) }
    ensures lets_go { (c : Call) → LetsGo Nothing (says c) }
{}
