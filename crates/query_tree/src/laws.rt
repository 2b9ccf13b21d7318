//! What the definition of matching says of small documents and queries. Each function does nothing: its clause
//! is the law.
ghost use Rattle.query_tree.specs.MatchLaws.{AllMatches, NestedNegativeAddsNothing, TopNegativeMatches, TopNegativeMatchesOthers, NestedNegativeMatchesNothing, PhraseWithinText, PhraseAcrossTexts, EmptyPhraseMatchesNothing, EmptyBoolMatchesNothing, EmptyRangeMatchesNothing, PointRangeIsTerm, EmptyPrefixMatchesTexts};

/// `*:*` matches each document.
pub fn all()
    ensures { AllMatches }
{}

/// `-cat:x` matches the documents without `cat` where it is the whole query, as the guide's Standard Query Parser
/// has it, and adds none where it stands inside another query. A whole query of prohibited parts matches each
/// document that none of them matches.
pub fn negative()
    ensures top { TopNegativeMatches }
    ensures others { TopNegativeMatchesOthers }
    ensures nested { NestedNegativeMatchesNothing }
    ensures beside { NestedNegativeAddsNothing }
{}

/// A phrase matches within one text of a field, and not from one text into the next.
pub fn phrase()
    ensures within { PhraseWithinText }
    ensures across { PhraseAcrossTexts }
{}

/// A phrase of no words and a Boolean query of no parts match nothing.
pub fn empty()
    ensures phrase { EmptyPhraseMatchesNothing }
    ensures boolean { EmptyBoolMatchesNothing }
{}

/// `{k TO k}` matches nothing, and `[k TO k]` what `k` matches.
pub fn point_range()
    ensures excluded { EmptyRangeMatchesNothing }
    ensures included { PointRangeIsTerm }
{}

/// The prefix of no characters matches the documents with a string or a token in the field, and none by its
/// numbers.
pub fn empty_prefix()
    ensures { EmptyPrefixMatchesTexts }
{}
