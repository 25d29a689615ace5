// What measuring, setting and asking why answer, without code: the definitions are specs/Answers.antt and specs/Why.antt, and
// specs/Lent.antt for the words that are lent. Beside them stand the laws that the entries use.

#![tactic(auto)]
