//! What state and unit fix of a turn, whatever session holds it.
ghost use Rattle.relay_server.specs.TurnLaws.{AskedIsAUnit, ChunkIsAnswered, CourseIsFixed, CourseIsOfAUnit};
ghost use Rattle.relay_server.specs.TurnLaws.{LineIsAnswered, NoUnitLacksACourse, TextIsAnswered, TurnIsOfItsUnit};

/// No unit of a state is without a course.
pub fn no_unit_lacks_a_course()
    ensures { NoUnitLacksACourse }
{}

/// State and unit fix the course.
pub fn course_is_fixed()
    ensures { CourseIsFixed }
{}

/// What has a course is a unit of its state.
pub fn course_is_of_a_unit()
    ensures { CourseIsOfAUnit }
{}

/// What a turn reads is a unit of its state.
pub fn asked_is_a_unit()
    ensures { AskedIsAUnit }
{}

/// A turn that begins where a unit of this course begins is of just this unit.
pub fn turn_is_of_its_unit()
    ensures { TurnIsOfItsUnit }
{}

/// A turn that begins where this line begins is of just this line, with the reply and the next
/// state of its row.
pub fn line_is_answered()
    ensures { LineIsAnswered }
{}

/// A turn that begins where this line of BDAT begins is of the line with its chunk.
pub fn chunk_is_answered()
    ensures { ChunkIsAnswered }
{}

/// A turn that begins where this dot text begins is of just that.
pub fn text_is_answered()
    ensures { TextIsAnswered }
{}
