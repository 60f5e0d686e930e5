//! Paths over one small document, by computation: what each means, what its program answers, and what the steps along each axis look at.
//! The expected positions are those of another implementation of XPath 1.0 (libxml2, by `tools/path_answers` and `tools/path_rows`); the expected looks are made by hand.
#![tactic(auto)]

ghost use Rattle.path_rows.specs.Answers.{step_rows, axis_rows, predicate_rows, child_rows, position_rows};
ghost use Rattle.path_rows.specs.Document.{AllFind, meant, answered};
ghost use Rattle.path_rows.specs.Looks.{AllLook, LooksAtDocument, an_element, a_text, attribute_k, the_document, from_element, from_text, from_attribute, from_document};

/// Each path means the positions that libxml2 finds.
#[tactic(auto, using(crate::proofs::PathRows::step_meant, crate::proofs::PathRows::axis_meant, crate::proofs::PathRows::predicate_meant, crate::proofs::PathRows::child_meant, crate::proofs::PathRows::position_meant))]
pub fn paths_mean_what_libxml2_finds()
    ensures steps { AllFind meant step_rows }
    ensures axes { AllFind meant axis_rows }
    ensures predicates { AllFind meant predicate_rows }
    ensures children { AllFind meant child_rows }
    ensures positions { AllFind meant position_rows }
{}

/// The program of each answers them in document order.
#[tactic(auto, using(crate::proofs::PathRows::step_answered, crate::proofs::PathRows::axis_answered, crate::proofs::PathRows::predicate_answered, crate::proofs::PathRows::child_answered, crate::proofs::PathRows::position_answered))]
pub fn paths_answer_what_libxml2_finds()
    ensures steps { AllFind answered step_rows }
    ensures axes { AllFind answered axis_rows }
    ensures predicates { AllFind answered predicate_rows }
    ensures children { AllFind answered child_rows }
    ensures positions { AllFind answered position_rows }
{}

/// A step along each axis looks at what the table of axes has for it, and at no more.
#[tactic(auto, using(crate::proofs::LookRows::element_looks, crate::proofs::LookRows::text_looks, crate::proofs::LookRows::attribute_looks, crate::proofs::LookRows::document_looks))]
pub fn axes_look_at_no_more_than_is_needed()
    ensures element { AllLook an_element from_element }
    ensures text { AllLook a_text from_text }
    ensures attribute { AllLook attribute_k from_attribute }
    ensures document { AllLook the_document from_document }
{}

/// A path that begins with `/` looks at the document alone, wherever it is evaluated.
#[tactic(auto, using(crate::proofs::LookRows::element_to_document, crate::proofs::LookRows::attribute_to_document, crate::proofs::LookRows::document_to_itself))]
pub fn absolute_paths_look_at_the_document()
    ensures element { LooksAtDocument an_element }
    ensures attribute { LooksAtDocument attribute_k }
    ensures document { LooksAtDocument the_document }
{}
