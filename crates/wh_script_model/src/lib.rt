//! The language of scripts: what a line asks for, the texts of replies, and which replies answer a script.
//!
//! The definitions are in `specs/`.
#![tactic(auto)]

ghost use Rattle.wh_script_model.specs.AnswerLaws.{RunsOnce, DrainsOnce, LinesBegin};
ghost use Rattle.wh_script_model.specs.Served.{ServedAsAlone};
ghost use Rattle.wh_script_model.specs.WorkedScripts.{SevenIsAnswered, SevenIsPrinted, LoopIsAnswered, RefuelIsRefused};

/// States what holds of the definition of the answers to a script: what a drain prints is determined, an instance of a
/// host that has been served has come as far as alone, and what the commands of three scripts get. Does nothing when
/// run: its contract is the laws and the examples.
pub fn answers_hold()
    ensures runs_once { RunsOnce }
    ensures drains_once { DrainsOnce }
    ensures lines_begin { LinesBegin }
    ensures served_as_alone { ServedAsAlone }
    ensures seven_is_answered { SevenIsAnswered }
    ensures seven_is_printed { SevenIsPrinted }
    ensures loop_is_answered { LoopIsAnswered }
    ensures refuel_is_refused { RefuelIsRefused }
{}
