ghost use Rattle.std.specs.Prelude.{◌≡◌, ◌≤◌, true, length};
ghost use Rattle.std.specs.List.{list_all, list_any};
ghost use Rattle.nim_edit.specs.Carried.{CarriedExtend};
ghost use Rattle.nim_edit.specs.Form.{IsInForm, WasBuilt};
ghost use Rattle.nim_edit.specs.Instances.{InstancesAreLegal};
ghost use Rattle.nim_place.specs.Extends.{is_live};
ghost use Rattle.nim_place.specs.Sound.{IsSound};
ghost use Rattle.nim_template.specs.Again.{HoldAgain};
ghost use Rattle.nim_template.specs.Built.{built};
ghost use Rattle.nim_template.specs.Fits.{is_fit};
ghost use Rattle.nim_template.specs.Given.{InstallsExtend, InstancesExtend};
ghost use Rattle.nim_template.specs.Instance.{LeavesEffect};
ghost use Rattle.nim_template.specs.Written.{HasEffect};

use nim_command::WorkerTemplate;
use nim_place::Placement;
use nim_template::ControllerTemplate;

/// What `build_halves` of `nim_template` gives is in form, so that its tasks may move, and was built, with owners that
/// are live.
pub fn built_is_in_form(
    template: &WorkerTemplate,
    recorded: &ControllerTemplate,
    place: &Placement,
    objects: u16,
    live: &[bool],
)
    requires objects { objects ≤ 512 }
    requires workers { length live.now ≤ 16 }
    requires live { list_any (λ flag. flag) live.now ≡ true }
    requires many { length recorded.now.forms ≤ 1024 }
    requires fit { list_all (is_fit objects) recorded.now.forms ≡ true }
    requires built { template.now ≡ built place.now objects live.now recorded.now }
    ensures form { IsInForm template.now }
    ensures built { WasBuilt place.now objects live.now recorded.now template.now }
    ensures owned { list_all (is_live live.now) template.now.owners ≡ true }
{}

/// A template that was built, and of which tasks moved since, stays as good as it was: its effect is that of its
/// halves, the commands of an instance leave what the effect says, behind it the preconditions hold again, the template
/// is sound (each task of an instance reads what it reads in program order, wherever it runs), the commands of an
/// instance are legal behind those so far, and the orders that install its halves extend all orders so far. Where each
/// owner is live, so do the orders of an instance: those of workers that have the halves as they are now, and those
/// that
/// carry the unsent edits to workers that still have the halves as they were last sent.
pub fn moved_stays_good(
    template: &WorkerTemplate,
    recorded: &ControllerTemplate,
    place: &Placement,
    objects: u16,
    live: &[bool],
)
    requires objects { objects ≤ 512 }
    requires workers { length live.now ≤ 16 }
    requires live { list_any (λ flag. flag) live.now ≡ true }
    requires many { length recorded.now.forms ≤ 1024 }
    requires fit { list_all (is_fit objects) recorded.now.forms ≡ true }
    requires built { WasBuilt place.now objects live.now recorded.now template.now }
    ensures effect { HasEffect (length live.now) objects template.now }
    ensures again { HoldAgain (length live.now) objects template.now }
    ensures left { LeavesEffect (length live.now) objects template.now }
    ensures sound { IsSound template.now }
    ensures legal { InstancesAreLegal (length live.now) objects template.now }
    ensures installs { InstallsExtend live.now template.now }
    ensures instances { list_all (is_live live.now) template.now.owners ≡ true
        → InstancesExtend live.now objects template.now }
    ensures carried { list_all (is_live live.now) template.now.owners ≡ true
        → CarriedExtend live.now objects template.now }
{}
