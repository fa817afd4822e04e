//! Worked packages, as proved equations: what their names mean, by the definitions.

ghost use Rattle.examples.specs.Worked.{Says_variable_in_its_own_value, Says_constant_in_its_own_value, Says_type_in_itself, Says_names_of_a_range, Says_parameter_named_again, Says_header_of_an_if, Says_fields_and_keys, Says_package_of_two_files, Says_hidden_predeclared_name, Says_import_and_a_local_of_its_name, Says_clauses_of_a_switch, Says_loop_and_its_body};

/// What the names of each worked package mean is what the specification of Go says (Blocks, Declarations and scope).
pub fn worked_packages()
    ensures variable_in_its_own_value { Says_variable_in_its_own_value }
    ensures constant_in_its_own_value { Says_constant_in_its_own_value }
    ensures type_in_itself { Says_type_in_itself }
    ensures names_of_a_range { Says_names_of_a_range }
    ensures parameter_named_again { Says_parameter_named_again }
    ensures header_of_an_if { Says_header_of_an_if }
    ensures fields_and_keys { Says_fields_and_keys }
    ensures package_of_two_files { Says_package_of_two_files }
    ensures hidden_predeclared_name { Says_hidden_predeclared_name }
    ensures import_and_a_local_of_its_name { Says_import_and_a_local_of_its_name }
    ensures clauses_of_a_switch { Says_clauses_of_a_switch }
    ensures loop_and_its_body { Says_loop_and_its_body }
{}
