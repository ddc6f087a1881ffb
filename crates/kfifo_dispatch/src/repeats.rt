//! Whether two tasks have one number.
ghost use Rattle.std.specs.Prelude.{◌≡◌, ◌==◌, true, false};
ghost use Rattle.std.specs.List.{IsDistinct, list_any};
ghost use Rattle.kfifo_dispatch.specs.Tasks.{HasRepeatedId, ids};

use crate::task::Task;

/// Whether two of the tasks have one number. It takes no memory.
pub(crate) fn has_repeated_id(tasks: &[Task]) -> bool
    ensures repeated { result ≡ true → HasRepeatedId tasks.now }
    ensures apart { result ≡ false → HasRepeatedId tasks.now → ⊥ }
{
    match tasks.split_first() {
        Some((first, rest)) => comes_again(first.id, rest) || has_repeated_id(rest),
        None => false,
    }
}

/// Whether one of the tasks has this number.
fn comes_again(id: u32, tasks: &[Task]) -> bool
    ensures { result ≡ list_any (λ task. id == task.id) tasks.now }
{
    tasks.iter().any(|task| id == task.id)
}
