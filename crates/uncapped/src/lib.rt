//! The uncapped procedure, as definitions that contracts cite: the ParamILS framework of
//! Hutter, Hoos, Leyton-Brown and Stützle, JAIR 36 (2009), in which every evaluation is
//! made in full, one run after another. There is no code here.
#![tactic(auto)]
