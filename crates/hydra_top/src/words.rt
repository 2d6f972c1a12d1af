//! The task of a command.

ghost use Rattle.std.specs.Prelude.{◌≡◌, ◌≤◌, Ok, IfSome, MatchOption};
ghost use Rattle.hydra_words.specs.Forms.{IsInRange};
ghost use Rattle.hydra_top.specs.Words.{not_built, solo_task, task_in};
ghost use Rattle.hydra_top.specs.Asked.{HasBound, asked};

use hy_text::Text;
use hydra_words::Command;

/// What is to be done with a file.
#[derive(Clone, Copy)]
pub enum Job<'a> {
    /// To search the runs of the procedure `entry` of its program within `bound`, which is 1 to 1000.
    Solo {
        entry: &'a Text,
        bound: u32,
    },
    /// To replay the trace that stands in the file `trace` on the runs of the procedure `entry` within `bound`, which is 1 to 1000.
    Replay {
        entry: &'a Text,
        bound: u32,
        trace: &'a Text,
    },
    /// To show its tree in the canonical form.
    Show,
}

/// What is asked: a job on the file of that name.
#[derive(Clone, Copy)]
pub struct Task<'a> {
    pub file: &'a Text,
    pub job: Job<'a>,
}

/// The task of a command that has so many words, or None where it isn't built: `check`, `gen`, and `solo` with an option.
pub fn task_in<'a>(count: usize, command: &'a Command) -> Option<Task<'a>>
    requires { IsInRange command.now }
    ensures task { MatchOption result (task_in count command.now ≡ not_built) (λ t. task_in count command.now ≡ Ok (asked t)) }
    ensures bound { IfSome result (λ t. HasBound t.job) }
{
    match command {
        Command::Solo {
            file,
            entry,
            bound,
            grain: _,
            journal: _,
        } => solo_task(count, file, entry, *bound),
        Command::Replay {
            file,
            entry,
            bound,
            trace,
        } => Some(Task {
            file,
            job: Job::Replay {
                entry,
                bound: *bound,
                trace,
            },
        }),
        Command::Show { file } => Some(Task {
            file,
            job: Job::Show,
        }),
        Command::Check { .. } => None,
        Command::Gen { .. } => None,
    }
}

// The task of `solo`, which has four words where it has no option.
fn solo_task<'a>(count: usize, file: &'a Text, entry: &'a Text, bound: u32) -> Option<Task<'a>>
    requires { (1 ≤ bound) × (bound ≤ 1000) }
    ensures task { MatchOption result (solo_task count file.now entry.now bound ≡ not_built) (λ t. solo_task count file.now entry.now bound ≡ Ok (asked t)) }
    ensures bound { IfSome result (λ t. HasBound t.job) }
{
    if count != 4 {
        return None;
    }
    let job = Job::Solo { entry, bound };
    Some(Task { file, job })
}
