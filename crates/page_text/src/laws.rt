//! Laws of pages. The function is empty: its contract is the laws.
ghost use Rattle.page_text.specs.Laws.{PagesAreMarkup, TextsHoldNoMarkup};

/// A page is markup: its elements open and close in each other, no element has two attributes of one name, and what stands
/// between them is texts. A text as it stands in a page has no `<`, no `>` and no `"`.
pub fn pages_are_markup()
    ensures pages { PagesAreMarkup }
    ensures texts { TextsHoldNoMarkup }
{}
