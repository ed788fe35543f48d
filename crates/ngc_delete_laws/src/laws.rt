//! Laws about the definitions alone.
ghost use Rattle.ngc_delete_laws.specs.Laws.{AlikeWithoutSlash, FollowsSetting};

/// States that a program for another control of which no line begins with `/` does the same at both
/// settings of block delete. So it changes nothing that such a program is executed without it.
pub fn settings_are_alike()
    ensures without_slash { AlikeWithoutSlash }
    ensures setting { FollowsSetting }
{}
