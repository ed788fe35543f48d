//! The colours of a picture.
ghost use Rattle.std.specs.Prelude.{◌≡◌, ◌≤◌, ◌+◌, ◌++◌, ◌∷◌, []};
ghost use Rattle.arrayvec.specs.ArrayVec.{array_vec_len};
ghost use Rattle.ngc_map_picture.specs.Maps.{palette};

use arrayvec::ArrayVec;

/// Adds a colour, for which there must be space.
fn add_colour(colours: &mut ArrayVec<u8, 768>, red: u8, green: u8, blue: u8)
    requires { array_vec_len colours.old + 3 ≤ 768 }
    ensures { colours.new.items ≡ colours.old.items ++ red ∷ green ∷ blue ∷ [] }
{
    colours.push(red);
    colours.push(green);
    colours.push(blue);
}

/// Returns the palette: three bytes for each of 256 colours.
pub(crate) fn palette() -> ArrayVec<u8, 768>
    ensures { result.items ≡ palette }
{
    let mut colours = ArrayVec::new();
    add_colour(&mut colours, 230, 0, 0);
    add_colour(&mut colours, 170, 200, 230);
    add_colour(&mut colours, 0, 40, 110);
    for grey in 3..=u8::MAX {
        add_colour(&mut colours, grey, grey, grey);
    }
    colours
}
