//! Laws of attempts between their calls.
ghost use Rattle.relay_client.specs.Laws.{FollowedIsCourse, FollowedMayBeLost};

/// What an attempt has read and written, while it goes on, is a course without verdicts.
#[tactic(auto, using(crate::proofs::Theorems::followed_is_course))]
pub fn followed_is_course()
    ensures { FollowedIsCourse }
{}

/// Where its connection is lost then, each place may be tried again.
#[tactic(auto, using(crate::proofs::Theorems::followed_may_be_lost))]
pub fn followed_may_be_lost()
    ensures { FollowedMayBeLost }
{}
