//! Laws of functions with deep headers, for the crates above. The functions do nothing: their contracts are the laws.

ghost use Rattle.go_function_headers.specs.Functions.{FunctionsRead};

use go_print_laws::laws::{functions_stand, headers_stand};
use go_rewriting::laws::rewritten_tokens;

/// A function of a header, of statements whose text stands by itself and of a return of names is a declaration over its tokens, in which
/// the signature stands as it is written down for it; and it may be appended to a file. Its header has whatever levels its types have, which
/// may be more than a file may have; of its statements at most 98 are asked, as those of a file have them (Go specification: Function
/// declarations).
pub fn functions_read()
    ensures { FunctionsRead }
{
    functions_stand();
    headers_stand();
    rewritten_tokens();
}
