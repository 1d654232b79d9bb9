//! What the definitions say of the list of changes, whatever the program does.
ghost use Rattle.std.specs.Prelude.{◌++◌, ◌∷◌, [], List};
ghost use Rattle.st_text.specs.Texts.{Text};
ghost use Rattle.st_core.specs.Worlds.{keep};
ghost use Rattle.st_hall_press.specs.Steps.{Ask, HallState, reply_of, state_after};
ghost use Rattle.st_hall_press.specs.Views.{EndsWith, ReadsOwn};

/// What a user may not see cannot be noticed at a desk. Let a user hold SYSTEM at no moment of the changes that a desk has seen.
/// Then the desk's reply to a read of that user is the last reply of the run without those of the changes that were refused or
/// are of rows that the user may never see.
pub fn a_desk_shows_no_more()
    ensures { (start : HallState) (user : Text) (seen : List Ask) (read : Ask)
        → ReadsOwn user start seen read
        → EndsWith start (keep user start (seen ++ read ∷ [])) read (reply_of (state_after start seen) read) }
{}
