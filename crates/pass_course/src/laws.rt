ghost use Rattle.pass_course.specs.Laws.{CallsAreCourses, CoursesJoin, UnderIsTested};

/// A call of a port is a course of one operation or of none, and courses one after the other are
/// one.
pub fn courses()
    ensures calls { CallsAreCourses }
    ensures join { CoursesJoin }
{}

/// The test of the request under way decides it.
pub fn requests()
    ensures tested { UnderIsTested }
{}
