//! The tasks for the next hops at one address.
ghost use Rattle.std.specs.Prelude.{◌≡◌, ◌↔◌, ◌+◌, ◌-◌, ◌≤◌, [], ◌∷◌, ◌++◌, IsTrue, None, drop, false, length, true};
ghost use Rattle.std.specs.Prelude.{if◌then◌else◌, option_to_list};
ghost use Rattle.std.specs.List.{list_any};
ghost use Rattle.relay_lanes.specs.Lane.{checked_of, first_message, is_early_for, is_for, tasks_of, unchecked_of};
ghost use Rattle.relay_lanes.specs.Lane.{with_first, with_last};

use relay_routes::HostName;
use std::alloc::Global;
use std::collections::VecDeque;
use std::mem;

/// A due message, and the next hop that it is for.
pub struct Task {
    /// The message's number.
    pub message: u64,
    /// The name of the next hop.
    pub hop: HostName,
    /// Whether it was asked for early: its attempt begins even if the message isn't due there yet.
    pub early: bool,
}

// Written out, so that the proof of a caller that drops it stops at this function.
impl Drop for Task {
    fn drop(self) {
        let Task {
            message: _,
            hop: _hop,
            early: _,
        } = self;
    }
}

impl Task {
    /// Splits the task into the message and the name of its next hop.
    pub fn into_parts(self) -> (u64, HostName)
        ensures { result ≡ (self.message, self.hop) }
    {
        let Task {
            message,
            hop,
            early: _,
        } = self;
        (message, hop)
    }
}

/// The tasks for the next hops at one address, in the order in which they begin.
pub struct Lane {
    /// Those that a postmaster has asked for early. They come first, and stay when the lane is emptied.
    pub early: VecDeque<Task>,
    /// The others.
    pub tasks: VecDeque<Task>,
    /// How many of the others, the last ones, weren't checked for being overdue since the lane was emptied; all, if
    /// there are fewer.
    pub unchecked: usize,
    /// The tasks from before the lane was emptied.
    bygone: VecDeque<Task>,
}

// Written out, so that the proof of a caller that drops it stops at this function.
impl Drop for Lane {
    fn drop(self) {
        let Lane {
            early: _early,
            tasks: _tasks,
            unchecked: _,
            bygone: _bygone,
        } = self;
    }
}

impl Lane {
    /// Returns an empty lane. Allocates nothing.
    pub fn new(alloc: Global) -> Self
        ensures { tasks_of result ≡ [] }
    {
        Lane {
            early: VecDeque::new(alloc),
            tasks: VecDeque::new(alloc),
            unchecked: 0,
            bygone: VecDeque::new(alloc),
        }
    }

    /// Empties the lane, but for the tasks that were asked for early. Dropping the others takes a while, and is left to
    /// `let_go`.
    pub fn clear(&mut self)
        ensures tasks { self.new.tasks.items ≡ [] }
        ensures early { self.new.early ≡ self.old.early }
    {
        self.bygone.clear();
        mem::swap(&mut self.tasks, &mut self.bygone);
        self.unchecked = 0;
    }

    /// Drops up to `most` tasks from before the lane was emptied.
    pub fn let_go(&mut self, most: usize)
        ensures early { self.new.early ≡ self.old.early }
        ensures tasks { self.new.tasks ≡ self.old.tasks }
        ensures unchecked { self.new.unchecked ≡ self.old.unchecked }
    {
        for _ in 0..most {
            if self.bygone.pop_front().is_none() {
                return;
            }
        }
    }

    /// Returns whether the lane is empty.
    pub fn is_empty(&self) -> bool
        ensures { IsTrue result ↔ (tasks_of self.now ≡ []) }
    {
        self.early.is_empty() && self.tasks.is_empty()
    }

    /// Returns whether one of the last tasks of a kind, all for this message, is for this next hop too: of those that
    /// were asked for early, or of the rest.
    pub fn has_last(&self, message: u64, hop: &HostName, early: bool) -> bool
        ensures rest { early ≡ false → result ≡ true
            → list_any (is_for message hop.now) (tasks_of self.now) ≡ true }
        ensures early { early ≡ true → result ≡ true
            → list_any (is_early_for message hop.now) (tasks_of self.now) ≡ true }
    {
        if early {
            self.ends_early_with(message, hop)
        } else {
            self.ends_with(message, hop)
        }
    }

    fn ends_with(&self, message: u64, hop: &HostName) -> bool
        ensures { result ≡ true → list_any (is_for message hop.now) (tasks_of self.now) ≡ true }
    {
        self.tasks
            .iter()
            .rev()
            .take_while(|task| task.message == message)
            .any(|task| task.hop.as_slice() == hop.as_slice())
    }

    fn ends_early_with(&self, message: u64, hop: &HostName) -> bool
        ensures { result ≡ true → list_any (is_early_for message hop.now) (tasks_of self.now) ≡ true }
    {
        self.early
            .iter()
            .rev()
            .take_while(|task| task.message == message)
            .any(|task| task.early && task.hop.as_slice() == hop.as_slice())
    }

    /// Adds a task, unchecked, after the others of its kind: those that were asked for early, or the rest. Returns
    /// whether there was memory for it.
    pub fn push(&mut self, task: Task) -> bool
        ensures pushed { IsTrue result → tasks_of self.new ≡ with_last task self.old }
        ensures unchecked { IsTrue result → unchecked_of self.new
            ≡ (if task.early then unchecked_of self.old else unchecked_of self.old ++ task ∷ []) }
        ensures failed { result ≡ false → (self.new.early.items ≡ self.old.early.items)
            × (self.new.tasks.items ≡ self.old.tasks.items) × (self.new.unchecked ≡ self.old.unchecked) }
    {
        if task.early {
            return self.early.push_back(task).is_ok();
        }
        if self.tasks.push_back(task).is_err() {
            return false;
        }
        self.unchecked = self.unchecked.saturating_add(1);
        true
    }

    /// Puts a task back before the others of its kind: those that were asked for early, or the rest. Returns whether
    /// there was memory for it.
    pub fn put_back(&mut self, task: Task) -> bool
        ensures pushed { IsTrue result → tasks_of self.new ≡ with_first task self.old }
        ensures failed { result ≡ false → tasks_of self.new ≡ tasks_of self.old }
        ensures added { length (tasks_of self.new) ≤ length (tasks_of self.old) + 1 }
    {
        if task.early {
            return self.early.push_front(task).is_ok();
        }
        self.tasks.push_front(task).is_ok()
    }

    /// Takes the next task.
    pub fn pop(&mut self) -> Option<Task>
        ensures tasks { tasks_of self.old ≡ option_to_list result ++ tasks_of self.new }
        ensures none { result ≡ None → tasks_of self.old ≡ [] }
    {
        match self.early.pop_front() {
            Some(task) => Some(task),
            None => self.tasks.pop_front(),
        }
    }

    /// Returns the message of the first unchecked task.
    pub fn next_unchecked(&self) -> Option<u64>
        ensures { result ≡ first_message (unchecked_of self.now) }
    {
        match self.tasks.get(self.first_unchecked()) {
            Some(task) => Some(task.message),
            None => None,
        }
    }

    /// Marks the first unchecked task as checked.
    pub fn check(&mut self)
        ensures tasks { (self.new.early ≡ self.old.early) × (self.new.tasks ≡ self.old.tasks) }
        ensures unchecked { unchecked_of self.new ≡ drop 1 (unchecked_of self.old) }
    {
        self.unchecked = self.unchecked.min(self.tasks.len()).saturating_sub(1);
    }

    /// Takes the first unchecked task out.
    pub fn take_unchecked(&mut self) -> Option<Task>
        ensures unchecked { unchecked_of self.old ≡ option_to_list result ++ unchecked_of self.new }
        ensures checked { checked_of self.new ≡ checked_of self.old }
        ensures none { result ≡ None → unchecked_of self.old ≡ [] }
    {
        let place = self.first_unchecked();
        let task = self.tasks.remove(place);
        self.unchecked = self.tasks.len().saturating_sub(place);
        task
    }

    /// Returns the index of the first unchecked task.
    fn first_unchecked(&self) -> usize
        ensures { result ≡ length self.now.tasks.items - self.now.unchecked }
    {
        self.tasks.len().saturating_sub(self.unchecked)
    }
}
