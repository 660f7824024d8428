ghost use Rattle.unit_meaning.specs.Laws.{BodyStandsInAction, ContentIsOfBody};
ghost use Rattle.unit_meaning.specs.Worked.{ChoiceInBody, SetsOfBothKinds, SplitCall, UrlWithParam};

/// What stands in the `jsp:body` of an action stands in the action, its params and branches too.
pub fn bodies()
    ensures content { ContentIsOfBody }
    ensures same { BodyStandsInAction }
{}

/// Worked shapes of actions.
pub fn worked()
    ensures url { UrlWithParam }
    ensures choice { ChoiceInBody }
    ensures call { SplitCall }
    ensures sets { SetsOfBothKinds }
{}
