// What a push does.
ghost use Rattle.flows.specs.PushLaws.{PushRaisesTheValueByTheGain, NeedsStayWithinTheGain};

// A push along an ordering with a gain leaves a lawful flow under the same limits, with a value higher by the gain.
pub fn push_raises_the_value_by_the_gain()
    ensures { PushRaisesTheValueByTheGain }
{}

// On the way no point needs more than the gain.
pub fn needs_stay_within_the_gain()
    ensures { NeedsStayWithinTheGain }
{}
