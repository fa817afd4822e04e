//! Laws, for the crates above. The functions do nothing: their contracts are the laws.

ghost use Rattle.window_holes_apart.specs.Apart.{WindowHolesLie};

/// The holes of a window lie one behind the other among the tokens of the window, and each has a token, where the nodes of its function lie in
/// the order of their tokens (`read_nodes_lie_in_order`).
pub fn holes_of_ordered_windows_lie_apart()
    ensures { WindowHolesLie }
{}
