//! The printer of label tests, whose texts are read again.
ghost use Rattle.std.specs.Prelude.{◌≡◌, ℕ, ◌-◌, ◌≤◌, Ok, IfOk, string_bytes};
ghost use Rattle.rl_selector_text.specs.Lexing.{lexemes_of};
ghost use Rattle.rl_selector_text.specs.TestGrammar.{AreTests, ended};
ghost use Rattle.rl_query.specs.TestTree.{count_tests};
ghost use Rattle.rl_query.specs.Form.{tests_form};
ghost use Rattle.rl_selector_text.specs.Testing.{tests_at};
ghost use Rattle.rl_query.specs.TestPrinting.{tests_text};
ghost use Rattle.rl_query.specs.TestDepth.{text_depth};

use rl_query::label_test::LabelTests;
use rl_query::test_printer::tests_text;
use std::alloc::{AllocError, Global};

/// The canonical text of label tests, as `a="x" and (b="y" or c="z")`: parentheses stand where they are needed.
#[tactic(auto, using(crate::proofs::TestPrinted::tests_kept, crate::proofs::TestPrinted::tests_printed, crate::proofs::TestPrinted::tests_again))]
pub fn print_tests(alloc: Global, tests: &LabelTests) -> Result<String, AllocError>
    ensures text { IfOk result (λ text. string_bytes text ≡ tests_text (tests_form tests.now)) }
    ensures derived { IfOk result (λ text. (depth : ℕ) → text_depth (tests_form tests.now) ≤ depth → AreTests depth (tests_form tests.now) (lexemes_of (string_bytes text)) (ended (string_bytes text))) }
    ensures again { IfOk result (λ text. (depth left : ℕ) → text_depth (tests_form tests.now) ≤ depth → count_tests (tests_form tests.now) ≤ left → tests_at depth left (lexemes_of (string_bytes text)) ≡ Ok (tests_form tests.now, left - count_tests (tests_form tests.now), ended (string_bytes text))) }
{
    let text = tests_text(alloc, tests)?;
    Ok(text)
}
