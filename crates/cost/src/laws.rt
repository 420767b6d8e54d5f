// Theorems about the definitions, as the contract of a function, so that the check asks for their proofs.
ghost use Rattle.cost.specs.Chosen.{ChosenBest};
ghost use Rattle.cost.specs.Laws.{BestIsFirst, BracketsAlike, CountedRight, FitsOnOne, NotNeedlesslyBroken, SameSigns, WiderNoWorse};
ghost use Rattle.cost.specs.ToGo.{BestToGo};
ghost use Rattle.cost.specs.Worked.{WorkedLayouts};

pub fn laws()
    // The best layouts of the worked documents.
    ensures worked_layouts { WorkedLayouts }
    // The best of all layouts is the best to go from the beginning.
    ensures best_is_to_go { BestToGo }
    // The decisions that the search notes make the best layout, or one that is too long where the best is.
    ensures decisions_are_best { ChosenBest }
    // The best layout is the first of those than which none is better.
    ensures best_is_first { BestIsFirst }
    // All layouts of a document have the same bytes, but for blanks and ends of lines.
    ensures same_signs { SameSigns }
    // The bytes beyond the width and the lines that are counted of a layout are those in its bytes.
    ensures counted_right { CountedRight }
    // How documents behind each other are bracketed does not matter, and nothing changes nothing.
    ensures brackets_alike { BracketsAlike }
    // A document that is one group, and fits on one line, is set on one.
    ensures fits_on_one { FitsOnOne }
    // A wider line is never worse.
    ensures wider_no_worse { WiderNoWorse }
    // A text, a group and a text before a line in no group are set on one line if they fit there, whatever comes behind.
    ensures not_needlessly_broken { NotNeedlesslyBroken }
{}
