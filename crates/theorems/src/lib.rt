// The front page: proofs/FrontPage.antt restates what is proved of the product. There is no code here.
#![tactic(auto)]
