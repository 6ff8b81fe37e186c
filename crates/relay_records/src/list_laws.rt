//! Laws of the lists of changes that records keep on an honest disk.
ghost use Rattle.relay_records.specs.ListLaws.{AwaitedAreNumbered, HaltedAllIsNotRefused, HaltedAllIsOpened};
ghost use Rattle.relay_records.specs.ListLaws.{HaltedIsNotRefused, HaltedIsOpened, KeptIsNotRefused, KeptIsOpened};
ghost use Rattle.relay_records.specs.ListLaws.{NextIsOneMore, NoneIsAwaited, OneListIsKept};

use relay_disk::Disk;

/// The next number of a list is that of one change more.
pub fn next_is_one_more()
    ensures { NextIsOneMore }
{}

/// The lists that records keep leave one queue.
pub fn one_list_is_kept<D: Disk>()
    ensures { D.honest → OneListIsKept D.honest D.words }
{}

/// What live records kept is opened as it was.
pub fn kept_is_opened<D: Disk>()
    ensures { D.honest → KeptIsOpened D.honest D.words }
{}

/// What stopped records kept is opened as it was, or with the change that was being added.
pub fn halted_is_opened<D: Disk>()
    ensures { D.honest → HaltedIsOpened D.honest D.words }
{}

/// What live records kept isn't refused for its octets.
pub fn kept_is_not_refused<D: Disk>()
    ensures { D.honest → KeptIsNotRefused D.honest D.words }
{}

/// What stopped records kept isn't refused for its octets.
pub fn halted_is_not_refused<D: Disk>()
    ensures { D.honest → HaltedIsNotRefused D.honest D.words }
{}

/// Records that keep changes await none: a row begins with any records that are live.
pub fn none_is_awaited<D: Disk>()
    ensures { NoneIsAwaited D.honest D.words }
{}

/// The next number of records that await changes comes after these.
pub fn awaited_are_numbered<D: Disk>()
    ensures { AwaitedAreNumbered D.honest D.words }
{}

/// What stopped records kept is opened as it was, or with all of the row that was being added.
pub fn halted_all_is_opened<D: Disk>()
    ensures { D.honest → HaltedAllIsOpened D.honest D.words }
{}

/// What records kept that were stopped while a row was added isn't refused for its octets.
pub fn halted_all_is_not_refused<D: Disk>()
    ensures { D.honest → HaltedAllIsNotRefused D.honest D.words }
{}
