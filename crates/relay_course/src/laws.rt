//! Laws of every attempt, whatever the replies.
ghost use Rattle.relay_course.specs.Laws.{AnsweredAreFirst, AnswersStay, CommandsKeepUp, CommandsStay, CourseIsOne};
ghost use Rattle.relay_course.specs.Laws.{CourseMayBeLost, EachCommandIsRead, EachCommandWaits, EachReplyAnswers};
ghost use Rattle.relay_course.specs.Laws.{EndIsEnd, EndWaitsForNothing, RcptsAreInOrder, ReplyLeadsOn};
ghost use Rattle.relay_course.specs.Laws.{TakenWhereAnswered, VerdictForEachPlace, VerdictsAreOfAHop};
ghost use Rattle.relay_course.specs.Laws.{VerdictsMayBeStored};
ghost use Rattle.relay_course.specs.Settling.{CourseSettles, SettledByItsReply, WorkedPositions};
ghost use Rattle.relay_course.specs.RelayLaws.{AllRcptsAnswered, CommandsToARelay, NothingBeforeAllRcpts};

/// A further reply goes on from the state that the others led to.
pub fn reply_leads_on()
    ensures { ReplyLeadsOn }
{}

/// Until an attempt ends, each further reply answers something.
pub fn each_reply_answers()
    ensures { EachReplyAnswers }
{}

/// What was written stays written, whatever replies come after.
pub fn commands_stay()
    ensures { CommandsStay }
{}

/// Until it ends an attempt waits for something, and of the greeting and the commands each was answered or waits.
pub fn each_command_waits()
    ensures { EachCommandWaits }
{}

/// An attempt that has ended waits for nothing.
pub fn end_waits_for_nothing()
    ensures { EndWaitsForNothing }
{}

/// If nothing waits for a reply, further replies change nothing.
pub fn end_is_end()
    ensures { EndIsEnd }
{}

/// After this many replies as many commands are written, or nothing more is.
pub fn commands_keep_up()
    ensures { CommandsKeepUp }
{}

/// The replies that answered something are the first ones, in order.
pub fn answered_are_first()
    ensures { AnsweredAreFirst }
{}

/// What was answered stays answered, whatever replies come after.
pub fn answers_stay()
    ensures { AnswersStay }
{}

/// The RCPTs that were answered are those of the first places, in order.
pub fn rcpts_are_in_order()
    ensures { RcptsAreInOrder }
{}

/// A place is Taken exactly if its RCPT and the content were answered 2yz.
pub fn taken_where_answered()
    ensures { TakenWhereAnswered }
{}

/// Each command is read by a server as it is meant, and of contents nothing but the stored text is sent.
pub fn each_command_is_read()
    ensures { EachCommandIsRead }
{}

/// A course has as many verdicts as places.
pub fn verdict_for_each_place()
    ensures { VerdictForEachPlace }
{}

/// The verdicts of a course may be stored: a refusal has a reply's code, and its text is short and
/// printable.
pub fn verdicts_may_be_stored()
    ensures { VerdictsMayBeStored }
{}

/// No verdict of a course says that there was no hop.
pub fn verdicts_are_of_a_hop()
    ensures { VerdictsAreOfAHop }
{}

/// A course that goes on may be lost: then each place may be tried again, and nothing more is written.
pub fn course_may_be_lost()
    ensures { CourseMayBeLost }
{}

/// What was read, and whether a loss was told, fix what was written and the verdicts.
pub fn course_is_one()
    ensures { CourseIsOne }
{}

/// At a relay an attempt writes EHLO, MAIL, the RCPTs, the content where one of those is accepted, and QUIT, and has
/// ended.
pub fn commands_to_a_relay()
    ensures { CommandsToARelay }
{}

/// Before all RCPTs are answered, nothing is written after them, and the others wait.
pub fn nothing_before_all_rcpts()
    ensures { NothingBeforeAllRcpts }
{}

/// Where all RCPTs were answered, so was what was written before them, and nothing else.
pub fn all_rcpts_answered()
    ensures { AllRcptsAnswered }
{}

/// If replies ended an attempt, each place has its verdict from the reply that settled it.
pub fn settled_by_its_reply()
    ensures { SettledByItsReply }
{}

/// The verdicts of a course are those of the replies that settled its places, or its connection was lost.
pub fn course_settles()
    ensures { CourseSettles }
{}

/// The reply that settles each place, in rows that were worked by hand.
pub fn worked_positions()
    ensures { WorkedPositions }
{}
