/// Says a sentence: `say!(page, output; b"tool ", Part::Number(3), b"\n")`.
///
/// A literal is a text, and every other expression is a part.
#[macro_export]
macro_rules! say {
    ($page:expr, $output:expr; $($part:tt)+) => {
        $crate::say!(@ $page, $output, []; $($part)+,)
    };
    (@ $page:expr, $output:expr, [$($done:expr,)*];) => {
        $page.say($output, &[$($done,)*])
    };
    (@ $page:expr, $output:expr, [$($done:expr,)*]; $text:literal, $($rest:tt)*) => {
        $crate::say!(@ $page, $output, [$($done,)* $crate::Part::Text($text),]; $($rest)*)
    };
    (@ $page:expr, $output:expr, [$($done:expr,)*]; $part:expr, $($rest:tt)*) => {
        $crate::say!(@ $page, $output, [$($done,)* $part,]; $($rest)*)
    };
}
