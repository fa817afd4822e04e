//! Laws, for the crates above. The functions do nothing: their contracts are the laws.

ghost use Rattle.extract_holes_placed.specs.Placed.{TemplateHolesHaveSites};

/// The holes of the template have sites: a path leads from the node that lists the template's statements to each of them, and they lie one behind
/// the other (`HasHoles`).
///
/// A caller gives that the template's window stands in the tree of its file (`windows_stand`), and that each of its holes does so below the node
/// of its statements, and that they lie apart (`holes_of_windows_lie_apart`).
pub fn template_holes_have_sites()
    ensures { TemplateHolesHaveSites }
{}
