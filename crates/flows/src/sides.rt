// What sides say of flows.
ghost use Rattle.scheme.specs.SideLaws.{ValueCrossesEachSide, NoValueExceedsASide};
ghost use Rattle.scheme.specs.SideLaws.{FlowAndSideThatMeetAreBest, AcceptedReviewMeansGreatest, NoFlowGainsMoreThanIsLeft};

// The value of a lawful flow is what leaves any side less what enters it.
pub fn value_crosses_each_side()
    ensures { ValueCrossesEachSide }
{}

// No value exceeds the capacity of any side.
pub fn no_value_exceeds_a_side()
    ensures { NoValueExceedsASide }
{}

// Where a value is a side's capacity, the flow is greatest and the capacity least.
pub fn flow_and_side_that_meet_are_best()
    ensures { FlowAndSideThatMeetAreBest }
{}

// So it is where a review of a published side accepts.
pub fn accepted_review_means_greatest()
    ensures { AcceptedReviewMeansGreatest }
{}

// Another lawful flow exceeds the present one by at most what is left out of any side.
pub fn no_flow_gains_more_than_is_left()
    ensures { NoFlowGainsMoreThanIsLeft }
{}
