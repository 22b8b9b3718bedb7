// Laws over the definitions, each the contract of a function with an empty body.
ghost use Rattle.std.specs.Prelude.{◌≡◌, true, false};
ghost use Rattle.jsgen_printer.specs.Context.{has, with_flag, SameBut, forbid_in};

use crate::context::Context;

/// A flag that is set and then unset isn't set, and each other flag is as it was.
pub fn a_flag_that_is_unset_leaves_the_others(context: Context)
    ensures unset { has forbid_in (with_flag false forbid_in (with_flag true forbid_in context)) ≡ false }
    ensures others { SameBut forbid_in context (with_flag false forbid_in (with_flag true forbid_in context)) }
{
    let _ = context;
}
