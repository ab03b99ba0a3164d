//! Laws of books that were gathered, each a call that does nothing and says the law.
ghost use Rattle.offer_book.specs.Consulted.{BookRestsOnFiles};
ghost use Rattle.offer_book.specs.Laws.{BookOffersAreAll, BookTellsSources, NumbersAreReached, NumbersGoByMention, FirstsAreOnce, FirstsAreNamed, FrontComesFirst, FeasibleInBook, FeasibleOverAll, ValidAlike, RaisedAlike};

/// What a book offers of a package that it numbers is what the files offer of it, and it says of the package whether it has a
/// source.
pub fn book_offers_are_all()
    ensures offers { BookOffersAreAll }
    ensures sources { BookTellsSources }
{}

/// A package has a number exactly where it is in every set that has the roots, the extra packages and all that offers of its
/// packages depend on.
pub fn numbers_are_reached()
    ensures { NumbersAreReached }
{}

/// The numbers go by first mention: roots, extra packages, then the dependencies of the packages in the order of the numbers.
pub fn numbers_go_by_mention()
    ensures { NumbersGoByMention }
{}

/// First mentions are once each, carry the name of the first mention, and those of a list's front stand first.
pub fn first_mentions()
    ensures once { FirstsAreOnce }
    ensures named { FirstsAreNamed }
    ensures front { FrontComesFirst }
{}

/// There is a feasible selection over the book's offers exactly where there is one over all offers: one over the book's is
/// one over all, and one over all, cut to the book's packages, is one over the book's.
pub fn feasible_alike()
    ensures cut { FeasibleInBook }
    ensures all { FeasibleOverAll }
{}

/// The same selections are valid over the book's offers and over all.
pub fn valid_alike()
    ensures { ValidAlike }
{}

/// The same packages of a valid selection can be raised over both.
pub fn raised_alike()
    ensures { RaisedAlike }
{}

/// Where files hold the same at the paths that gathering consults, the book or its refusal is the same.
pub fn book_rests_on_files()
    ensures { BookRestsOnFiles }
{}
