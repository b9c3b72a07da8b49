// Laws of the numbers in what is read: names are below their count, and labels fit.
