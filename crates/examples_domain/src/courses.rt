ghost use Rattle.laws_course.specs.Course.{IsOnCourse};
ghost use Rattle.examples_domain.specs.Branch.{branch, branch_a, branch_view, for_c};

/// A copy for C is on its course from A to P, in a tunnel with 255 hops, and from P to C, with 254.
pub fn a_copy_on_its_course()
    ensures enters { IsOnCourse branch.routers branch_a branch_view 0 4 0 2 (for_c 255) }
    ensures goes_on { IsOnCourse branch.routers branch_a branch_view 0 4 2 3 (for_c 254) }
{}

/// The copy is off its course toward B, on the way back from P to A, and if its tunnel's TTL expires before C.
pub fn copies_off_their_course()
    ensures aside { IsOnCourse branch.routers branch_a branch_view 0 4 0 1 (for_c 255) → ⊥ }
    ensures back { IsOnCourse branch.routers branch_a branch_view 0 4 2 0 (for_c 254) → ⊥ }
    ensures spent { IsOnCourse branch.routers branch_a branch_view 0 4 0 2 (for_c 1) → ⊥ }
{}
